// Every history of calls leaves entry tables that the orders of their lists do not contradict: theorems alone.

#![tactic(auto)]
