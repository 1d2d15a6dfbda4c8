//! Views that look at each unit before it is taken.
ghost use Rattle.std.specs.Prelude.{◌≡◌, ℕ, List, OnOk};
ghost use Rattle.vx_annexb.specs.ByteStream.{IsSound};
ghost use Rattle.vx_pic.specs.Readings.{Reading};
ghost use Rattle.vx_pic.specs.Rules.{Readers};
ghost use Rattle.vx_pic.specs.H266.{AreOfH266};
ghost use Rattle.vx_assemble.specs.Held.{Stands};

use crate::assembler::Assembler;
use std::alloc::AllocError;
use vx_pic::StructureFields;

/// A view that looks at each unit before it is taken. [`StructureFields`] sees the fields of the unit, and `()` sees nothing.
pub trait UnitView {
    ghost use Rattle.std.specs.Prelude.{◌≡◌, ℕ, List, OnOk};
    ghost use Rattle.vx_annexb.specs.ByteStream.{IsSound};
    ghost use Rattle.vx_pic.specs.Readings.{Reading};
    ghost use Rattle.vx_pic.specs.Rules.{Readers};
    ghost use Rattle.vx_pic.specs.H266.{AreOfH266};
    ghost use Rattle.vx_assemble.specs.Held.{Stands};

    ghost sees: { (R : Readers) → AreOfH266 R → List Reading → List ℕ → Self };

    ghost nothing: { Self };

    /// Sees nothing.
    fn look_away(&mut self, assembler: &Assembler)
        ensures { self.new ≡ nothing };

    /// Looks at the unit that the assembler takes next.
    fn look(&mut self, assembler: &Assembler, unit: &[u8]) -> Result<(), AllocError>
        requires { IsSound unit.now }
        ensures { OnOk result ((R : Readers) (h : AreOfH266 R) (before : List Reading) → Stands assembler.now before
            → self.new ≡ sees R h before unit.now) };
}

impl UnitView for () {
    ghost sees = { λ R h before unit. tt };

    ghost nothing = { tt };

    fn look_away(&mut self, _assembler: &Assembler) {}

    fn look(&mut self, _assembler: &Assembler, _unit: &[u8]) -> Result<(), AllocError> {
        Ok(())
    }
}

impl UnitView for StructureFields {
    ghost use Rattle.vx_pic.specs.Shown.{no_fields};
    ghost use Rattle.vx_assemble.specs.Fields.{unit_fields};

    ghost sees = { λ R h before unit. unit_fields R h before unit };

    ghost nothing = { no_fields };

    fn look_away(&mut self, assembler: &Assembler) {
        *self = assembler.no_fields();
    }

    fn look(&mut self, assembler: &Assembler, unit: &[u8]) -> Result<(), AllocError> {
        *self = assembler.unit_fields(unit)?;
        Ok(())
    }
}
