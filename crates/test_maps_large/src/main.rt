// Every map call on long and large plates.
#![tactic(auto)]

fn main() {
    test_map_records::run_input();
}
