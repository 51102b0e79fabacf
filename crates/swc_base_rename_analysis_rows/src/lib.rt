//! Small trees for each clause of the definitions of naming: one that meets it, and one that does not.
#![tactic(auto)]
