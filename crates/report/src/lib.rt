// Document 01, "The report". The definitions are in specs/.
#![tactic(auto)]
