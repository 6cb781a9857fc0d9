// Which entry tables are sound, as RULES 5.3 has it, and the four slices that a call is lent.
#![tactic(auto)]

ghost use Rattle.tree_sound.specs.Tables as lent;

use std::marker::Model;

// The entry tables as a call is lent them to be read: of the directories and of the files, the hash and the table. A contract sees what stands in them.
#[derive(Drop)]
pub struct Tables<'a> {
    pub dir_hash: &'a [u8],
    pub dir_table: &'a [u8],
    pub file_hash: &'a [u8],
    pub file_table: &'a [u8],
}

impl<'a> Model for Tables<'a> {
    ghost Value = { lent.Tables };

    ghost view = { λ t. lent.tables t.dir_hash.now t.dir_table.now t.file_hash.now t.file_table.now };
}
