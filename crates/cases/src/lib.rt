// Cases that tell a rule from another one that looks like it. Claims about the calls of `marlinfold`, computed; there is no function.
#![tactic(auto)]
