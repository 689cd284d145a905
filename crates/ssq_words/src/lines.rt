//! Some command lines, as they are read.
ghost use Rattle.std.specs.Prelude.{◌≡◌, ◌∷◌, [], Some, None, codes};
ghost use Rattle.ssq_words.specs.Asking.{asked, asks_explain, asks_gen, asks_run, asks_show, asks_status};

/// The law of some command lines: what they ask for, or that they are refused.
pub fn lines_are_read()
    ensures run { asked (codes "ssq" ∷ codes "run" ∷ codes "q.sql" ∷ []) ≡ Some (asks_run (codes "q.sql") None None 1) }
    ensures partitions { asked (codes "ssq" ∷ codes "run" ∷ codes "q.sql" ∷ codes "--partitions" ∷ codes "64" ∷ [])
        ≡ Some (asks_run (codes "q.sql") (Some 64) None 1) }
    ensures max_lines { asked (codes "ssq" ∷ codes "run" ∷ codes "q.sql" ∷ codes "--max-lines" ∷ codes "2" ∷ [])
        ≡ Some (asks_run (codes "q.sql") None (Some 2) 1) }
    ensures rounds { asked (codes "ssq" ∷ codes "run" ∷ codes "q.sql" ∷ codes "--rounds" ∷ codes "2" ∷ [])
        ≡ Some (asks_run (codes "q.sql") None None 2) }
    ensures show { asked (codes "ssq" ∷ codes "show" ∷ codes "q.sql" ∷ []) ≡ Some (asks_show (codes "q.sql")) }
    ensures explain { asked (codes "ssq" ∷ codes "explain" ∷ codes "q.sql" ∷ []) ≡ Some (asks_explain (codes "q.sql")) }
    ensures status { asked (codes "ssq" ∷ codes "status" ∷ codes "q.sql" ∷ []) ≡ Some (asks_status (codes "q.sql")) }
    ensures generated { asked (codes "ssq" ∷ codes "gen" ∷ codes "1" ∷ codes "4" ∷ []) ≡ Some (asks_gen 1 4) }
    ensures number_past { asked (codes "ssq" ∷ codes "gen" ∷ codes "65537" ∷ codes "4" ∷ []) ≡ None }
    ensures none_generated { asked (codes "ssq" ∷ codes "gen" ∷ codes "1" ∷ codes "0" ∷ []) ≡ None }
    ensures no_count { asked (codes "ssq" ∷ codes "gen" ∷ codes "1" ∷ []) ≡ None }
    ensures walk { asked (codes "ssq" ∷ codes "walk" ∷ codes "q.sql" ∷ []) ≡ None }
    ensures no_partitions { asked (codes "ssq" ∷ codes "run" ∷ codes "q.sql" ∷ codes "--partitions" ∷ codes "0" ∷ []) ≡ None }
    ensures partitions_past { asked (codes "ssq" ∷ codes "run" ∷ codes "q.sql" ∷ codes "--partitions" ∷ codes "65" ∷ []) ≡ None }
    ensures no_lines { asked (codes "ssq" ∷ codes "run" ∷ codes "q.sql" ∷ codes "--max-lines" ∷ codes "0" ∷ []) ≡ None }
    ensures nothing { asked (codes "ssq" ∷ []) ≡ None }
    ensures explain_nothing { asked (codes "ssq" ∷ codes "explain" ∷ []) ≡ None }
    ensures no_query { asked (codes "ssq" ∷ codes "run" ∷ []) ≡ None }
    ensures two_queries { asked (codes "ssq" ∷ codes "run" ∷ codes "a" ∷ codes "b" ∷ []) ≡ None }
{}
