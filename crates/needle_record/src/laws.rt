//! What holds of the reader and the writer together: the clauses of both speak of the same spellings.

ghost use Rattle.std.specs.Prelude.{◌≡◌, ◌++◌, ℕ, List, IfSome, Ok};
ghost use Rattle.world_model.specs.Sizes.{FitsRecord};
ghost use Rattle.needle_record.specs.declared.Record.{Record};
ghost use Rattle.needle_record.specs.Spelling.{HasRoom, SpellsNeedle, canonical, length_of_record};
ghost use Rattle.needle_record.specs.Reading.{needle_at};

/// What is written is read again, whatever follows it.
pub fn written_is_read()
    ensures { (r : Record) (more : List ℕ) → HasRoom r → IfSome r.content FitsRecord
        → needle_at (canonical r ++ more) ≡ Ok (r, length_of_record r) }
{}

/// No bytes begin two records.
pub fn bytes_begin_one_record()
    ensures { (r s : Record) (a b x y : List ℕ) → SpellsNeedle r a → SpellsNeedle s b → a ++ x ≡ b ++ y
        → r ≡ s }
{}
