// The demands as theorems: statements in specs/, proofs in proofs/, no code.
//
// Demand 1, that every public call ends and does nothing undefined on all input, is the gate itself: a function without
// a proof does not pass it, and no public function has a `requires`. docs/CALLS.md lists them all, with their refusals;
// specs/Outcomes has a line for each of the library's, and proofs/Outcomes shows that its contract leaves one outcome;
// the crates beside it have the laws of their promises in their own proofs/.
// Demand 2: specs/Openers (stated record, round trip, exact acceptance and the refusals, over any sealer and opener),
// over the checks of specs/Checks; specs/Parts (hash, MAC, cipher, keys), specs/Figures; proved in proofs/Demand2,
// Parts, Figures. Demand 3: specs/Steppers (same place, same reports, same count, work as defined, refusals alike,
// steps too many, refused start, and every step on any opening, over any stepper); proved in proofs/Demand3 through the
// laws of any machine (specs/Machine); specs/OneCall carries it to the one call, and specs/Openers (CallsAlike) says it
// of the call alone. specs/Exported: the same of noustrel_seal and noustrel_open: what they promise is our sealer and
// our opener; wrong sizes come before all else.
// How tight they are: specs/OnlyOurs, what meets them is ours; specs/StandIns, wrong functions that do not, refuted in
// proofs/StandInOpeners and proofs/StandInSteppers.
#![tactic(auto)]
