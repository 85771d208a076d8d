// No code: what follows from the sheet's rules. What is written is read again, an accepted sheet is what its setup
// writes, how long a sheet can be, and examples by number and place.
#![tactic(auto)]
