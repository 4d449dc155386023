// A vertex strictly inside a circle is seen across one edge: everything is in specs/.
#![tactic(auto)]
