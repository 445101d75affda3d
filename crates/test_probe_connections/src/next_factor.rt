//! The request for the next factor, which is of the type of a switch: a module holds one block of a trait for a type.

use crate::borrowed::is_copied;
use crate::plugins::show_plugin;
use crate::prelude::*;

impl Shows<AuthNextFactor<'_>> for Connections {
    fn show(it: &AuthNextFactor<'_>, out: &mut Out) {
        show_plugin(Some(&it.auth_plugin()), out);
        out.show("plugin_data", it.plugin_data());
        out.show("raw", it.plugin_data_raw());
        anew!(out, it; owned it)
    }
}

impl<'a> InPlace<AuthNextFactor<'a>, AuthNextFactorRef<'a>> for Connections {
    fn is(place: &AuthNextFactorRef<'a>, owned: &AuthNextFactor<'a>, out: &mut Out) -> bool {
        fields!(place, owned; alike auth_plugin, plugin_data, plugin_data_raw)
            && AuthPlugin::from_bytes(place.auth_plugin_name()) == owned.auth_plugin()
            && place.to_owned() == *owned
            && is_copied(place, out)
    }
}
