ghost use Rattle.std.specs.Prelude.{◌≡◌, ℕ, List, Some, All, Contains, map, length, slice_get};
ghost use Rattle.std.specs.List.Sorted.{IsStrictlyIncreasing};
ghost use Rattle.v_syntax.specs.declared.token.Token.{Token};
ghost use Rattle.v_syntax.specs.declared.module.Module.{Module};
ghost use Rattle.v_syntax.specs.Tokens.{AreTokens};
ghost use Rattle.v_syntax.specs.ModuleGrammar.{Derives};
ghost use Rattle.v_meaning.specs.declared.names.Entry.{Entry};
ghost use Rattle.v_meaning.specs.Expressions.{number_of_place};
ghost use Rattle.v_meaning.specs.Sites.{Site, module_sites};
ghost use Rattle.v_places.specs.Openings.{module_openings, place_of, bits_read};

/// Law: the sites of a module that tokens derive stand one behind another in the text, no two at one byte, whatever its
/// names are taken to be.
pub fn sites_ascend()
    ensures { (from end : ℕ) (tokens : List Token) (m : Module) → AreTokens from end tokens → Derives tokens m → (names : List Entry) → IsStrictlyIncreasing (map place_of (module_sites names m.items)) }
{}

/// Law: so the number of each site of such a module is found by its place; and a place of no site has the number behind the
/// last one.
pub fn sites_are_found()
    ensures number { (from end : ℕ) (tokens : List Token) (m : Module) → AreTokens from end tokens → Derives tokens m → (names : List Entry) (i : ℕ) (s : Site) → slice_get (module_sites names m.items) i ≡ Some s → number_of_place (map place_of (module_sites names m.items)) s.at ≡ i }
    ensures none { (places : List ℕ) (at : ℕ) → ((i : ℕ) → slice_get places i ≡ Some at → ⊥) → number_of_place places at ≡ length places }
{}

/// Law: at the place of each number and each select of such a module that a cycle looks at, as many bits are read as are
/// open there, which are none where it is no site (IEEE Std 1364-2005, 3.5.1, 5.2.1 and 5.2.2). Each site is one of these.
pub fn open_bits_are_read()
    ensures read { (from end : ℕ) (tokens : List Token) (m : Module) → AreTokens from end tokens → Derives tokens m → (names : List Entry) → All (λ s. bits_read (module_sites names m.items) s.at ≡ s.width) (module_openings names m.items) }
    ensures sites { (m : Module) (names : List Entry) → All (Contains (module_openings names m.items)) (module_sites names m.items) }
{}
