// The answer to a whole site sheet: definitions and theorems, no functions. The definitions are in specs/, in the words of paper 01, "Site
// sheet" and "The record", and the theorems of them in proofs/; what the rows say is in crate `site_lines`.
#![tactic(auto)]
