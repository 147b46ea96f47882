//! The numbers of sites and their places. Each law is the contract of a function that does nothing.
ghost use Rattle.std.specs.Prelude.{◌≡◌, List, Some, IsSome, IsTrue, ◌↔◌};
ghost use Rattle.cell_world.specs.Texts.{Text};
ghost use Rattle.cell_world.specs.Keys.{is_among};
ghost use Rattle.cell_world.specs.Images.{Image, Global, Shard};
ghost use Rattle.cell_world.specs.Lists.{IsOneOf};
ghost use Rattle.cell_world.specs.Outside.{site_number, place_at};
ghost use Rattle.cell_world.specs.Operations.{sites_of};
ghost use Rattle.cell_world.specs.Lawful.{Lawful};
ghost use Rattle.cell_world.specs.Sound.{IsAttachedIn};
ghost use Rattle.cell_world.specs.declared.cells.Site.{Site};
ghost use Rattle.cell_world.specs.declared.operations.Op.{Op};

/// The place of site 0 is the global store, and that of a location's site is the shard there. A location has a site exactly where the world knows it, and no two have one.
pub fn sites_have_their_places()
    ensures global_store { (locations : List Text) → place_at locations 0 ≡ Some Global }
    ensures shards { (locations : List Text) (location : Text) (site : Site) → site_number locations location ≡ Some site → place_at locations site.0 ≡ Some (Shard location) }
    ensures known { (locations : List Text) (location : Text) → IsSome (site_number locations location) ↔ IsTrue (is_among locations location) }
    ensures own { (locations : List Text) (a b : Text) (site : Site) → site_number locations a ≡ Some site → site_number locations b ≡ Some site → a ≡ b }
{}

/// Each site of a lawful operation is attached.
pub fn sites_of_operations_are_attached()
    ensures { (image : Image) (op : Op) → Lawful image op → (location : Text) → IsOneOf (sites_of op) location → IsAttachedIn image location }
{}
