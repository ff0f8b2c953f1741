// Every map call on blocks, small plates and refused arguments.
#![tactic(auto)]

fn main() {
    test_map_records::run_input();
}
