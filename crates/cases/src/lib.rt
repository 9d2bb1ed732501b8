// The cases of document 01 that are marked P, shown of the definitions together: specs/Table.antt has them in one table, with
// the statement, which a lone theorem covers (proofs/Cases.antt). There is no code here.
#![tactic(auto)]
