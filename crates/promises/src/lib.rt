// The promises: demands 1 to 3 over runs of calls, cards and products in any order, and quiet rounds. What a run is, what had been offered, whose
// card it is and what moves an auction stand in specs/, the theorems in proofs/.
#![tactic(auto)]
