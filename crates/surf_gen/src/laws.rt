//! What holds of all chains of tori. A call of one of these functions does nothing; its contract is the law.
ghost use Rattle.std.specs.Prelude.{◌≡◌, ℕ, ◌*◌, ◌-◌, length, map};
ghost use Rattle.std.specs.List.{range_with_len};
ghost use Rattle.surf_gen.specs.Chains.{vertices, cells, number};
ghost use Rattle.surf_gen.specs.Sizes.{IsChainSize};

/// The numbers of the vertices, in the order in which they are listed, are 0, 1, 2 and so on.
pub fn numbered_in_order()
    ensures { (genus grid : ℕ) → IsChainSize genus grid
        → map (number grid) (vertices genus grid) ≡ range_with_len 0 (length (vertices genus grid)) }
{}

/// Where two tori are glued, four points are common and two cells are cut out.
pub fn counted()
    ensures vertices { (genus grid : ℕ) → IsChainSize genus grid
        → length (vertices genus grid) ≡ genus * grid * grid - 4 * (genus - 1) }
    ensures cells { (genus grid : ℕ) → IsChainSize genus grid
        → length (cells genus grid) ≡ genus * grid * grid - 2 * (genus - 1) }
{}
