// Every call on plunge files, on long and large plates.
#![tactic(auto)]

fn main() {
    test_file_records::run_input();
}
