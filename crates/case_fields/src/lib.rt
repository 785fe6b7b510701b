// A case, read from text: what its lines give, each kind of line in a part of its own (conformance/FORMAT.md).
#![tactic(auto)]

pub mod case;
pub mod parts;
pub mod snapshot;
pub mod text;
