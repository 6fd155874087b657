//! Algebra over the whole numbers, for proofs alone: the laws of the ring, polynomial identities by
//! computation, and how an order follows from an identity. There is nothing here to run.
#![tactic(auto)]
