// The run of two sheets as a syslog stream, and what a collector knows by it: the definitions are in specs/, the theorems in proofs/.
// There is no function here.
#![tactic(auto)]
