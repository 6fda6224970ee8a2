//! The parts of a step at worked examples: each definition is evaluated by the prover and compared with a
//! number that was worked by hand (proofs/). That the code gives what the definitions say is proved where it
//! stands.
#![tactic(auto)]
