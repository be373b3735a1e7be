//! What the file of a program holds: a source alone, or a bundle.
#![tactic(auto)]

mod bundle;

pub use bundle::{
    BundleParts, DEVICES, MAX_BUNDLE_BYTES, SCRIPT, before_script, count_lines, cut, parts_of,
};
