// Runs of one monitor over the calls of `monitor` (document 01, "Asking"; the demands): the book, the possible instants, demand 3, and the table of
// cases. There is no code here: the crate states and proves what the calls do together, and assumes nothing of its own.
#![tactic(auto)]
