//! Small trees for each clause of the definitions of names: one that meets it, and one that does not.
#![tactic(auto)]
