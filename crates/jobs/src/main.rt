// Prints the listings of many jobs. tests/make_vectors.py says which.
#![tactic(auto)]

use printer::print_listings;

fn main() {
    print_listings();
}
