//! What is true of commands that are followed.

ghost use Rattle.std.specs.Prelude.{◌≡◌, ℕ, ◌+◌, ◌*◌, ◌<◌, ◌≤◌, true, List, map, ℤ};
ghost use Rattle.homeo_syntax.specs.Low.{Command};
ghost use Rattle.homeo_syntax.specs.Source.{Workload};
ghost use Rattle.homeo_meaning.specs.Acceptance.{IsAccepted};
ghost use Rattle.homeo_meaning.specs.Bounds.{AllWithin, IsWithin};
ghost use Rattle.homeo_meaning.specs.CallForm.{ground_form};
ghost use Rattle.homeo_meaning.specs.Calls.{IsGroundCall};
ghost use Rattle.homeo_meaning.specs.Ground.{Ground};
ghost use Rattle.homeo_meaning.specs.LowWeights.{first_weights, is_light};
ghost use Rattle.homeo_meaning.specs.Schema.{Schema, schema_of};
ghost use Rattle.homeo_meaning.specs.Serial.{values_of};
ghost use Rattle.homeo_meaning.specs.Small.{IsSmall};
ghost use Rattle.homeo_meaning.specs.Whole.{IsWhole};
ghost use Rattle.homeo_plan.specs.Each.{Each};
ghost use Rattle.homeo_plan.specs.Holding.{AtomHolds};
ghost use Rattle.homeo_plan.specs.Limit.{form_limit};
ghost use Rattle.homeo_plan.specs.Needs.{remote};
ghost use Rattle.homeo_plan.specs.Template.{PlannedCall, atoms_of, needs_of, Clause, template};
ghost use Rattle.homeo_plan.specs.declared.forms.Delta.{Delta};
ghost use Rattle.homeo_follow.specs.Brought.{brought};
ghost use Rattle.homeo_follow.specs.Expanded.{expanded, expanded_deltas};
ghost use Rattle.homeo_follow.specs.Follow.{own_state, object_forms, follow, followed, needed};
ghost use Rattle.homeo_follow.specs.FollowSizes.{AreNumbers, CanBeFollowed};
ghost use Rattle.homeo_follow.specs.Named.{named};
ghost use Rattle.homeo_follow.specs.ObjectTemplate.{expanded_clause, IsByObjects};
ghost use Rattle.homeo_follow.specs.Rebased.{rebased_clause, rebased, gains};
ghost use Rattle.homeo_follow.specs.Steady.{IsSteady};

/// The atoms of a ground call over whole objects, at its site and at a base, are those of its command followed by objects, with
/// each object's factor at each site. So they are the same at every site.
pub fn atoms_are_followed()
    ensures { (k : ℕ) (b : ℕ → ℤ) (p : PlannedCall) → p.site < k → IsWhole p.command →
        atoms_of k b p ≡ map (expanded k) (followed b p.command).atoms }
{}

/// The needs of its residual are the deltas at the other sites of the objects that its command depends on.
pub fn needs_are_followed()
    ensures { (k : ℕ) (b : ℕ → ℤ) (p : PlannedCall) → p.site < k → IsWhole p.command →
        needs_of k b p ≡ remote p.site (expanded_deltas k (needed b (followed b p.command))) }
{}

/// So the template of ground calls over whole objects is made by objects: each clause has an object's factor at each site.
pub fn templates_are_by_objects()
    ensures { (k : ℕ) (b : ℕ → ℤ) → 1 ≤ k → (gs : List PlannedCall) →
        Each (λ g. (g.site < k) × IsWhole g.command) gs → IsByObjects k b gs }
{}

/// Where no expression of a command weighs more than b, and no base value is larger than b, each constant and each factor met
/// as the command is followed is at most 2 * b + 1 in size, and so is each that is left.
pub fn light_commands_are_followed_by_small_forms()
    ensures { (b : ℕ) → 1 ≤ b → (x : Schema) (c : Command) (base : ℕ → ℤ) → AllWithin x base →
        ((n : ℕ) → IsSmall b (base n)) → is_light b c (first_weights x) ≡ true →
        CanBeFollowed (IsSmall (2 * b + 1)) (object_forms base) c ×
        AreNumbers (IsSmall (2 * b + 1)) (follow c (object_forms base)).forms }
{}

/// Each constant and each factor met as the L form of a ground call of an accepted workload is followed, at a base within
/// bounds, is at most 4 * 10^18 in size, and so is each that is left.
pub fn accepted_calls_are_followed_by_small_forms()
    ensures { (w : Workload) (g : Ground) (base : List ℤ) → IsAccepted w → IsGroundCall w g.transaction g.args →
        IsWithin (schema_of w) base →
        CanBeFollowed (IsSmall form_limit) (object_forms (values_of base)) (ground_form w g) ×
        AreNumbers (IsSmall form_limit) (followed (values_of base) (ground_form w g)).forms }
{}

/// What a command brings to a plan is the same at two bases that agree on the objects that it names. It is also the same rebased,
/// since what the command asks has terms of these objects alone, and they gain nothing.
pub fn parts_stay()
    ensures same { (b d : ℕ → ℤ) (c : Command) → Each (λ x. b x ≡ d x) (named c) → brought b c ≡ brought d c }
    ensures rebased { (b d : ℕ → ℤ) (c : Command) → Each (λ x. b x ≡ d x) (named c) →
        brought d c ≡ rebased (gains b d) (brought b c) }
{}

/// Where what a command asks at one base holds of what the objects gained to another, its tests come out there as they did. So what it
/// brings there is the same, rebased, if it is steady: of a condition with several tests no two fail at once.
pub fn parts_move()
    ensures { (b d : ℕ → ℤ) (c : Command) → IsSteady c → Each (AtomHolds (own_state (gains b d))) (followed b c).atoms →
        brought d c ≡ rebased (gains b d) (brought b c) }
{}

/// Where what each of several ground calls brings at one base is what it brings at another, rebased, so is their template: a
/// template over whole objects that is the one at the other base is, with rebased clauses, the one at this base.
pub fn templates_stay()
    ensures { (k : ℕ) (b d g : ℕ → ℤ) → 1 ≤ k → (gs : List PlannedCall) → Each (λ p. (p.site < k) × IsWhole p.command) gs →
        Each (λ p. brought d p.command ≡ rebased g (brought b p.command)) gs → (cs : List Clause) (ds : List Delta) →
        record { clauses = map (expanded_clause k) cs; freezes = ds } ≡ template k b gs →
        record { clauses = map (expanded_clause k) (map (rebased_clause g) cs); freezes = ds } ≡ template k d gs }
{}
