// What holds of the whole way from a plan to its rows: theorems, and no code.
#![tactic(auto)]
