mod drawing;
mod file;
mod film;
mod picture;

use std::process::Abort;

/// Asserts that something is so, and else tells what. It is proved once, where `assert!` is proved at each of its places.
fn so(rt: &impl Abort, is_so: bool, what: &str) {
    assert!(rt; is_so, "{what}");
}
