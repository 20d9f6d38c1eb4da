// Rulebooks: the canonical table of a set of records, and the calls that change and ask it.
#![tactic(auto)]

mod changing;
mod load_table;
mod opening;
mod rulebook;
mod rulebook_ruling;
mod turning;
