//! Plain lemmas on lists: their elements, places and pieces, and lists that rise. There is no code here.
#![tactic(auto)]
