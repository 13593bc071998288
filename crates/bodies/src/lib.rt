// The bodies that packings read and write: what they say, in specs/.
#![tactic(auto)]
