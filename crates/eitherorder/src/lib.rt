// W-211: two calls on different fonts, in either order. A claim about the calls of `marlinfold`, and its proof; there is no function.
#![tactic(auto)]
