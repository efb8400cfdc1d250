ghost use Rattle.std.specs.Prelude.{◌≡◌, [], ◌∷◌, codes};
ghost use Rattle.gds_law.specs.Line.{line_of};
ghost use Rattle.gds_law.specs.declared.kind.FaultKind.TheVariants.{LongFile, WrongLevel, TransactionTooNew};
ghost use Rattle.gds_law.specs.declared.kind.FaultKind.TheVariants.{DoublyAllocated, IllegalPair};

/// How the lines of faults read: of the file, of a block of a tree with its path, and of a local bitmap and what it
/// says of a block.
pub fn lines()
    ensures file { line_of (record { kind = LongFile; block = 0; offset = 0; level = 0; path = [] })
        ≡ codes "DBFGTBC file" }
    ensures root { line_of (record { kind = TransactionTooNew; block = 1; offset = 0; level = 1; path = [] })
        ≡ codes "GDSBLKTN 1:0 level 1 path -" }
    ensures block { line_of (record {
      kind = WrongLevel;
      block = 4;
      offset = 0;
      level = 5;
      path = (1, 16) ∷ (2, 16) ∷ (3, 16) ∷ [];
    })
        ≡ codes "DBINCLVL 4:0 level 5 path 1:10 2:10 3:10" }
    ensures record_ { line_of (record {
      kind = DoublyAllocated;
      block = 3;
      offset = 30;
      level = 1;
      path = (1, 16) ∷ (2, 16) ∷ [];
    })
        ≡ codes "DBBDBALLOC 3:1E level 1 path 1:10 2:10" }
    ensures bitmap { line_of (record { kind = TransactionTooNew; block = 512; offset = 0; level = 0; path = [] })
        ≡ codes "GDSBLKTN 200 map" }
    ensures pair { line_of (record { kind = IllegalPair; block = 10; offset = 0; level = 0; path = [] })
        ≡ codes "DBBFSTAT A map" }
{}
