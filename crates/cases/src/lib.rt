// Case files: what a program of worked cases reads, a case a line, and how it prints what a case gives.
//
//   NAME: OPERATION NUMBERS | LIST | LIST > ROOM
//
// A number stands after its name, as in `k 10`; numbers come in the order in which the operation takes them. A list has
// its entries: `1x15` is fifteen times 1, and `1 0 0 .. 2048` goes over 1 0 0 again and again until there are 2,048.
// The list `out` is what the case before has written; entries may follow the word, as in `out 1x10`. ROOM is how many
// entries the lent output has, which are all 9 before. A line that is empty or begins with # is no case.
#![tactic(auto)]

pub mod reading;
pub mod show;
