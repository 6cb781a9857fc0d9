// A kiosk's create and then a make of the file: theorems, and no code.

#![tactic(auto)]
