// Document 02, ticket 1: what the writer and the reader of records give. The definitions are in specs/, the theorems in proofs/.
#![tactic(auto)]
