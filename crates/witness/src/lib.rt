// What is shown by computing: rows of docs/MACHINE.md, and an image for which the bound of the warning is reached. There is nothing to run
// here.
#![tactic(auto)]
