// The replay of a shift sheet, line by line: what a line does and what it prints. There is no code here: specs/ has the definitions and what is promised
// of each line, proofs/ the proofs, and that lines lead from valid states to valid states.
#![tactic(auto)]
