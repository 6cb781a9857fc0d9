// Why the calls over packed lists of open records answer as they do with one record for each inode, and when a list is full. Definitions and theorems alone.

#![tactic(auto)]
