// The largest tables that load takes, by computation over the definitions of crate `model`: definitions in specs/, proofs in proofs/. No code.
#![tactic(auto)]
