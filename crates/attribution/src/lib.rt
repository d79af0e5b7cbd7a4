// Document 01, "Attribution", "Goods and precursors" and the totals of "The report", for a works, and document 02, ticket 4, the figures that
// govern a precursor. The definitions are in specs/, the sum over the works in proofs/.
#![tactic(auto)]
