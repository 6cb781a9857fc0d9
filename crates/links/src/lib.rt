// Lists threaded through link words: definitions and laws alone. A table whose entries name the next one by a word has its rules here.

#![tactic(auto)]
