//! What is true of the texts that workloads are printed as.

ghost use Rattle.std.specs.Prelude.{ℕ, List};
ghost use Rattle.homeo_syntax.specs.Source;
ghost use Rattle.homeo_syntax.specs.Reads.{Reads};
ghost use Rattle.homeo_print_workload.specs.TokensOf.{workload_kinds};
ghost use Rattle.homeo_print_workload.specs.Printed.{IsPrintable, ScansAs};
ghost use Rattle.homeo_print_workload.specs.ReadingBack.{ReadsBack};

/// What a workload of a text is printed as reads as that workload, apart from offsets.
pub fn reading_back()
    ensures printable { (text : List ℕ) (w : Source.Workload) → Reads text w → IsPrintable w }
    ensures reads { (text out : List ℕ) (w : Source.Workload) → Reads text w → ScansAs w.names (workload_kinds w) out → ReadsBack out w }
{}
