//! What is true of the calls of all accepted workloads.

ghost use Rattle.std.specs.Prelude.{◌≡◌, ℕ, ℤ, List, map, Some, slice_get};
ghost use Rattle.homeo_syntax.specs.Source as s;
ghost use Rattle.homeo_meaning.specs.Acceptance.{weight_limit, IsAccepted};
ghost use Rattle.homeo_meaning.specs.Bounds.{IsWithin};
ghost use Rattle.homeo_meaning.specs.Calls.{IsGroundCall};
ghost use Rattle.homeo_meaning.specs.Computed.{CanRunAll};
ghost use Rattle.homeo_meaning.specs.Context.{context};
ghost use Rattle.homeo_meaning.specs.Serial.{start};
ghost use Rattle.homeo_meaning.specs.Schema.{schema_of};
ghost use Rattle.homeo_meaning.specs.Small.{IsSmall};

/// Each value that a call meets is at most 10^18 in size, whatever the database within its bounds: each that stands in
/// the text or is read, and each that is computed, with the partial sums and products from left to right.
pub fn values_fit()
    ensures { (w : s.Workload) (transaction : ℕ) (args : List ℤ) (t : s.Transaction) (database : List ℤ) →
        IsAccepted w → IsGroundCall w transaction args → slice_get w.transactions transaction ≡ Some t →
        IsWithin (schema_of w) database →
        CanRunAll (IsSmall weight_limit) (IsSmall weight_limit) (context (schema_of w) (map (λ p. p.name.name) t.params) args)
        t.body (start database) }
{}
