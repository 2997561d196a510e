//! Laws of the definitions that the pool's contracts cite.

ghost use Rattle.std.specs.Prelude.{◌≡◌, ℕ, ◌+◌, ◌↔◌, ◌<◌, ◌≤◌, List, Contains, length, MatchOption, IsTrue, is_some};
ghost use Rattle.grasp_types.specs.Prefix.{AddressBlock, span_of};
ghost use Rattle.grasp_pool.specs.Spans.{Covers, IsValid};
ghost use Rattle.grasp_pool.specs.Canonical.{IsCanonical, IsClean, IsRising, IsTidy, IsLowestFree, HasNoFree};
ghost use Rattle.grasp_pool.specs.Holdings.{Holding, IsFree, IsNew, GivesBack, Confirms, Doubts, Settles, Gains};
ghost use Rattle.grasp_pool.specs.Pools.{IsPool, room_of, IsTaken, IsNotTaken, IsTakenAt, IsNotTakenAt};
ghost use Rattle.grasp_pool.specs.Answers.{IsOpened, IsReopened};
ghost use Rattle.grasp_pool.specs.Listings.{all_of, AreDisjoint};
ghost use Rattle.grasp_pool.specs.declared.image.PoolImage.{PoolImage};
ghost use Rattle.grasp_pool.specs.Roots.{AllValid, AllApart};
ghost use Rattle.grasp_pool.specs.declared.roots.RootPrefix.{RootPrefix};
ghost use Rattle.grasp_pool.specs.Functions.{lowest_free, pool_of, pool_of_image, can_gain, take_reply, after_take, around, take_at_reply};
ghost use Rattle.grasp_pool.specs.Functions.{after_take_at, after_back, after_confirm, after_doubt, after_settle, after_gain};

/// A set of addresses has one list of maximal prefixes in rising order.
#[tactic(auto, using(crate::proofs::Unique::one_canonical))]
pub fn one_canonical_list()
    ensures { (xs ys : List AddressBlock) → IsCanonical xs → IsCanonical ys → ((a : ℕ) → Covers xs a ↔ Covers ys a) → xs ≡ ys }
{}

/// Where no two prefixes of a rising list overlap or make up a larger one, they are the maximal prefixes of what it
/// covers: so a pool's free prefixes are the maximal ones of its free addresses.
pub fn clean_lists_are_canonical()
    ensures lists { (xs : List AddressBlock) → IsClean xs → IsRising xs → IsCanonical xs }
    ensures pools { (h : Holding) → IsPool h → IsCanonical h.free }
{}

/// A pool is its three sets.
#[tactic(auto, using(crate::proofs::Changes::same_pool))]
pub fn same_sets_same_pool()
    ensures { (g h : Holding) → IsPool g → IsPool h → ((a : ℕ) → IsFree g a ↔ IsFree h a)
        → ((q : AddressBlock) → Contains g.reserved q ↔ Contains h.reserved q)
        → ((q : AddressBlock) → Contains g.doubtful q ↔ Contains h.doubtful q) → g ≡ h }
{}

/// There is at most one lowest free prefix of a length.
pub fn one_lowest_free()
    ensures { (ps : List AddressBlock) (n : ℕ) (p q : AddressBlock) → IsLowestFree ps n p → IsLowestFree ps n q → p ≡ q }
{}

/// The lowest free prefix of a length, as a function of the list, is what its definition by addresses says.
#[tactic(auto, using(crate::proofs::Meanings::lowest_is))]
pub fn lowest_free_is_lowest()
    ensures { (ps : List AddressBlock) (n : ℕ) → IsTidy ps → 1 ≤ n → n ≤ 128
        → MatchOption (lowest_free ps n) (HasNoFree ps n) (λ p. IsLowestFree ps n p) }
{}

/// At most 1,024 disjoint prefixes open a pool, whose free addresses are theirs.
pub fn good_roots_open()
    ensures opened { (roots : List RootPrefix) → length roots ≤ 1024 → AllValid roots (length roots)
        → AllApart roots (length roots) → IsOpened roots (pool_of roots) }
    ensures pool { (roots : List RootPrefix) → IsOpened roots (pool_of roots) → IsPool (pool_of roots) }
{}

/// At most 4,096 disjoint prefixes of an image open a pool anew, whose free addresses are those of the free ones, and whose
/// doubtful prefixes are the doubtful ones.
pub fn reopened_means()
    ensures reopened { (image : PoolImage) → length image.free + length image.doubtful ≤ 4096 → AreDisjoint (all_of image) → IsReopened image (pool_of_image image) }
    ensures pool { (image : PoolImage) → IsReopened image (pool_of_image image) → IsPool (pool_of_image image) }
{}

/// What `take` answers and leaves, as functions, is what is said of it by addresses, and a pool stays a pool.
pub fn take_means()
    ensures answer { (h : Holding) (n : ℕ) → IsPool h → 1 ≤ n → n ≤ 128
        → MatchOption (take_reply h n) (IsNotTaken h (after_take h n (take_reply h n)) n)
        (λ p. IsTaken h (after_take h n (take_reply h n)) n p) }
    ensures pool { (h : Holding) (n : ℕ) → IsPool h → 1 ≤ n → n ≤ 128 → IsPool (after_take h n (take_reply h n)) }
{}

/// What `is_free` answers, as a function, is whether all addresses of the prefix are free.
pub fn free_means()
    ensures { (h : Holding) (p : AddressBlock) → IsPool h → IsValid p → IsTrue (is_some (around h.free p)) ↔ ((a : ℕ) → span_of p a → IsFree h a) }
{}

/// What `take_at` answers and leaves, as functions, is what is said of it by addresses, and a pool stays a pool.
pub fn take_at_means()
    ensures taken { (h : Holding) (p : AddressBlock) → IsPool h → IsValid p → IsTrue (take_at_reply h p)
        → IsTakenAt h (after_take_at h p (take_at_reply h p)) p }
    ensures refused { (h : Holding) (p : AddressBlock) → IsPool h → IsValid p → ¬ IsTrue (take_at_reply h p)
        → IsNotTakenAt h (after_take_at h p (take_at_reply h p)) p }
    ensures pool { (h : Holding) (p : AddressBlock) → IsPool h → IsValid p → IsPool (after_take_at h p (take_at_reply h p)) }
{}

/// What the calls on a reserved prefix leave, as functions, is what is said of them by addresses, and a pool stays a pool.
pub fn reserved_calls_mean()
    ensures back { (h : Holding) (p : AddressBlock) → IsPool h → Contains h.reserved p → GivesBack h (after_back h p) p }
    ensures back_pool { (h : Holding) (p : AddressBlock) → IsPool h → Contains h.reserved p → IsPool (after_back h p) }
    ensures confirmed { (h : Holding) (p : AddressBlock) → IsPool h → Contains h.reserved p → Confirms h (after_confirm h p) p }
    ensures confirmed_pool { (h : Holding) (p : AddressBlock) → IsPool h → Contains h.reserved p → IsPool (after_confirm h p) }
    ensures doubted { (h : Holding) (p : AddressBlock) → IsPool h → Contains h.reserved p → Doubts h (after_doubt h p) p }
    ensures doubted_pool { (h : Holding) (p : AddressBlock) → IsPool h → Contains h.reserved p → IsPool (after_doubt h p) }
{}

/// What `settle` leaves, as a function, is what is said of it by addresses, and a pool stays a pool.
pub fn settle_means()
    ensures settled { (h : Holding) (p : AddressBlock) → IsPool h → Contains h.doubtful p → Settles h (after_settle h p) p }
    ensures pool { (h : Holding) (p : AddressBlock) → IsPool h → Contains h.doubtful p → IsPool (after_settle h p) }
{}

/// What `can_gain` and `gain` answer and leave, as functions, is what is said of them by addresses, and a pool stays a pool.
pub fn gain_means()
    ensures gainable { (h : Holding) (p : AddressBlock) → IsTrue (can_gain h p) ↔ (IsNew h p × (0 < room_of h)) }
    ensures gained { (h : Holding) (p : AddressBlock) → IsPool h → IsValid p → IsTrue (can_gain h p) → Gains h (after_gain h p) p }
    ensures gained_pool { (h : Holding) (p : AddressBlock) → IsPool h → IsValid p → IsTrue (can_gain h p) → IsPool (after_gain h p) }
{}
