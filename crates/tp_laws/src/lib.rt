//! What holds of every legal record, that is for every interleaving of every caller's, worker's and
//! controller's steps: each public function's contract is a law, and its body is empty.
//!
//! A history lists a record's entries latest first, so that a front of the record is a tail of the
//! history: `later ++ h` is a record whose front is `h`. A law that is said of every legal `h` holds
//! at every front of every legal record.
//!
//! The lemmas that the crates above cite stand in folders of `proofs/`. `Model` has what is known of
//! legal records: what each given entry says of the record before it, how places and slots are tied
//! together, and the law of the next state. That law stands here, and not beside the definitions in
//! `tp_record`, since all crates cite those, and would be checked again with each change of a lemma.
//!
//! `Effects` has what each entry makes of a state: what is seen of the next state, and what is owed
//! before and after. It speaks of the model alone, and of no structure. `Effects/Submitters`,
//! `Workers` and `Controllers` have a file for each step, with a lemma for each of its answers. A lemma
//! takes a legal history and what is given of the entry, and the slot's row before it, where the answer
//! leaves that open. It gives an `Effect` (`specs/View`): every field of the next state, row by row, and
//! by how much what is owed falls or rises. So the code of a step needs no sum of weights.
//!
//! `Words*` say that the words of the rules agree with the working tables, and `Owed*` that a record has
//! room for what is owed.
//!
//! `Left` and the module `leaving` speak of a state from which tasks are left out: a pool that has
//! forgotten tasks is described as a state, with the numbers that are left out and a count of their fates.
//! So one table of steps serves every pool. The rows that are left out are blank, which shows that no
//! answer rests on them.
#![tactic(auto)]

pub mod lawful;
pub mod leaving;
pub mod outcomes;
pub mod room;
pub mod shutdown;
pub mod stepping;
pub mod tasks;
pub mod waiting;
pub mod words;
pub mod workers;
