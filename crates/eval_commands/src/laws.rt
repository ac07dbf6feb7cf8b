//! A law of what `hwdb` is asked, the contract of a function with an empty body.
ghost use Rattle.std.specs.Prelude.{◌≡◌, Some, None};
ghost use Rattle.text_bytes.specs.Text.{Text};
ghost use Rattle.eval_commands.specs.UdevHwdb.{asked_by};
ghost use Rattle.eval_commands.specs.declared.udev_hwdb.Given.{Given};

/// With a modalias it does not matter whether a device is named: the modalias is looked up, and no device is looked at.
/// Without one, a device that is named is not looked at here.
pub fn a_modalias_is_looked_up_whatever_device_is_named()
    ensures given { (g : Given) (modalias device : Text) → g.modalias ≡ Some modalias → asked_by (record g { device = Some device })
        ≡ asked_by (record g { device = None }) }
    ensures none { (g : Given) (device : Text) → g.modalias ≡ None → asked_by (record g { device = Some device }) ≡ None }
{}
