// No code: proofs/ shows of each public operation that no two outcomes meet its contract. Those of acceptor and storage stand beside them.
#![tactic(auto)]
