//! A store whose medium fails at every call: what the tests of the desk send requests to. A crate of its own, since its must-fail
//! edit would have all of test_desk proved a second time.
#![tactic(auto)]

mod store;

pub use store::FailingStore;
