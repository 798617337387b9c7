//! The law of places: a function that does nothing, with the law as clauses.

ghost use Rattle.std.specs.Prelude.{◌≡◌, List, All, option_map};
ghost use Rattle.mind_base.specs.Page.{PageView};
ghost use Rattle.mind_base.specs.Range.{InRange};
ghost use Rattle.mind_base.specs.Home.{home_of};
ghost use Rattle.range_translate.specs.Place.{IsSmallest, physical_place, place_in_outlier};
ghost use Rattle.range_translate.specs.Table.{TableView, IsTable};
ghost use Rattle.range_translate.specs.declared.outliers.Outlier.{Outlier};

/// In every table a page with a home lies where the smallest outlier that has it says, and at its home
/// where none has it.
pub fn smallest_outlier_decides()
    ensures moved { (table : TableView) (page : PageView) (o : Outlier) → IsTable table → IsSmallest table.outliers page o
        → physical_place table.homes table.outliers page ≡ option_map (λ _. place_in_outlier o page) (home_of table.homes page) }
    ensures at_home { (table : TableView) (page : PageView) → All (λ o. InRange o.range page → ⊥) table.outliers
        → physical_place table.homes table.outliers page ≡ home_of table.homes page }
{}
