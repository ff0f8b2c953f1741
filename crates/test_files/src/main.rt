// Every call on plunge files, on small plates.
#![tactic(auto)]

fn main() {
    test_file_records::run_input();
}
